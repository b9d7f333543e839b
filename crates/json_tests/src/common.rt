use cell_value::{Items, Text};
use sheets_json::{Answer, Reply, answer_text};
use std::alloc::Global;
use std::fmt::Debug;
use std::process::Abort;

/// Stops where it doesn't hold of the row.
pub(crate) fn check<T: Debug>(rt: &impl Abort, row: &T, holds: bool) {
    assert!(rt; holds, "{row:?}");
}

/// Words with spaces between, or less of them where memory runs out.
#[derive(Drop)]
pub(crate) struct Line {
    alloc: Global,
    text: String,
}

impl Line {
    /// A line with no word yet.
    pub(crate) fn new(alloc: Global) -> Line {
        Line {
            alloc,
            text: String::new(alloc),
        }
    }

    /// The line so far.
    pub(crate) fn as_str(&self) -> &str {
        self.text.as_str()
    }

    /// One word more.
    pub(crate) fn word(&mut self, word: &str) {
        if !self.text.is_empty() {
            let _ = self.text.push_str(" ");
        }
        let _ = self.text.push_str(word);
    }

    /// One more, as the value prints for those who look for faults.
    pub(crate) fn value<T: Debug>(&mut self, value: &T) {
        match format!(in self.alloc; "{value:?}") {
            Ok(word) => self.word(word.as_str()),
            Err(_) => self.word(""),
        }
    }
}

/// The parts one after the other, or less of them where memory runs out.
pub(crate) fn joined(alloc: Global, front: &str, middle: &str, back: &str) -> String {
    let mut text = String::new(alloc);
    let _ = text.push_str(front);
    let _ = text.push_str(middle);
    let _ = text.push_str(back);
    text
}

/// The text, or an empty one where memory runs out.
pub(crate) fn text(alloc: Global, text: &str) -> Text {
    Text::of(match String::from_str(alloc, text) {
        Ok(text) => text,
        Err(_) => String::new(alloc),
    })
}

/// A list of things; of none where memory runs out.
pub(crate) fn list<T: Drop, const N: usize>(alloc: Global, things: [T; N]) -> Items<T> {
    Items::of(match Vec::from_array(alloc, things) {
        Ok(things) => things,
        Err(_) => Vec::new(alloc),
    })
}

/// The answer to a batch on the spreadsheet `book1`.
pub(crate) fn batch(alloc: Global, replies: Items<Reply>) -> Answer {
    Answer::Batch {
        replies,
        spreadsheet_id: text(alloc, "book1"),
    }
}

/// Stops where an answer doesn't have that text.
pub(crate) fn shows(rt: &impl Abort, alloc: Global, answer: Answer, wanted: &str) {
    let holds = is_answer(alloc, &answer, wanted);
    drop(answer);
    check(rt, &wanted, holds);
}

/// Whether an answer has that text.
fn is_answer(alloc: Global, answer: &Answer, wanted: &str) -> bool {
    match answer_text(alloc, answer) {
        Ok(text) => text.as_slice() == wanted.as_bytes(),
        Err(_) => false,
    }
}

/// Ten letters.
pub(crate) const TEN: &str = "aaaaaaaaaa";

/// Ten times the text.
pub(crate) fn ten_times(alloc: Global, text: &str) -> String {
    let mut many = String::new(alloc);
    for _ in 0..10 {
        let _ = many.push_str(text);
    }
    many
}

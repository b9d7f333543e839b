ghost use Rattle.conversation.specs.Laws.{BeginsTalk};

use sheets_http::conversation_laws;

/// The law of conversations that were cut off: the requests that they answered are the first ones of
/// the talk, which goes on with what is left of the stream. It does nothing when it runs.
pub fn cut_off_laws()
    ensures { BeginsTalk }
{
    conversation_laws();
}

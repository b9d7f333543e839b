use cell_value::NoMemory;
use std::error::Error;
use std::fmt;

/// A merge would be cut: the area has a cell of it and not all of them, or its lines would not stand
/// side by side in their old order. The merges are as they were.
#[derive(Clone, Copy, Debug, PartialEq, Eq)]
pub struct Cut;

impl fmt::Display for Cut {
    ghost use Rattle.std.specs.Prelude.{Some};
    ghost use Rattle.merge_ranges.specs.Faults.{cut_text};

    ghost output = { λ _. Some cut_text };

    fn fmt<W: fmt::Write>(&self, f: &mut fmt::Formatter<W>) -> fmt::Result {
        f.write_str("a merge would be cut")
    }
}

impl Error for Cut {}

/// Why cells can't be merged. The merges are as they were.
#[derive(Clone, Copy, Debug, PartialEq, Eq)]
pub enum MergeFault {
    /// The area has a cell of a merge and not all of them.
    Cut,
    /// Memory ran out.
    NoMemory,
}

impl fmt::Display for MergeFault {
    ghost use Rattle.std.specs.Prelude.{Some};
    ghost use Rattle.merge_ranges.specs.Faults.{fault_text};

    ghost output = { λ fault. Some (fault_text fault) };

    fn fmt<W: fmt::Write>(&self, f: &mut fmt::Formatter<W>) -> fmt::Result {
        match self {
            MergeFault::Cut => f.write_str("a merge would be cut"),
            MergeFault::NoMemory => f.write_str("no memory"),
        }
    }
}

impl Error for MergeFault {}

impl From<Cut> for MergeFault {
    ghost use Rattle.std.specs.Prelude.{◌≡◌};
    ghost use Rattle.merge_ranges.specs.declared.fault.MergeFault.TheVariants.{Cut as a_cut};

    ghost from_gives = { λ _ fault. fault ≡ a_cut };

    fn from(_cut: Cut) -> MergeFault {
        MergeFault::Cut
    }
}

impl From<NoMemory> for MergeFault {
    ghost use Rattle.std.specs.Prelude.{◌≡◌};
    ghost use Rattle.merge_ranges.specs.declared.fault.MergeFault.TheVariants.{NoMemory as out_of_memory};

    ghost from_gives = { λ _ fault. fault ≡ out_of_memory };

    fn from(_none: NoMemory) -> MergeFault {
        MergeFault::NoMemory
    }
}

//! What printing and reading mean to each other.
ghost use Rattle.ctl_script.specs.Law.{PrintLaw};

/// The law of printing: a script that some text spells for a plan is what its print spells for that plan too, where no
/// name at the end of an order's line ends with a carriage return. So [`read`](crate::read) answers it again of any print that it takes,
/// up to want of memory.
pub fn a_print_reads_as_itself()
    ensures { PrintLaw }
{}

//! Input data: what a key holds at the start of the program.

ghost use Rattle.std.specs.Prelude.{◌≡◌};
ghost use Rattle.paris_events.specs.State.{flag_input, with_flag_input};

use paris_field::SharedValue;
use paris_names::FlagName;

/// A key's value at the start of the program, and the number of the edit that last gave or declared it.
#[derive(Debug, Drop)]
pub struct Input {
    pub value: SharedValue,
    pub number: u64,
}

/// The input data of a set's flags.
#[derive(Debug, Drop)]
pub struct FlagInputs {
    pub context: Input,
    pub test: Input,
    pub carry: Input,
    pub overflow: Input,
}

impl FlagInputs {
    /// The input data of a flag.
    pub fn flag(&self, flag: FlagName) -> &Input
        ensures { result.now ≡ flag_input self.now flag }
    {
        match flag {
            FlagName::Context => &self.context,
            FlagName::Test => &self.test,
            FlagName::Carry => &self.carry,
            FlagName::Overflow => &self.overflow,
        }
    }

    /// Gives a flag other input data.
    pub fn set_flag(&mut self, flag: FlagName, input: Input)
        ensures { self.new ≡ with_flag_input self.old flag input }
    {
        match flag {
            FlagName::Context => self.context = input,
            FlagName::Test => self.test = input,
            FlagName::Carry => self.carry = input,
            FlagName::Overflow => self.overflow = input,
        }
    }
}

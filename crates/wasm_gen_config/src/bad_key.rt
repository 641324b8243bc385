//! A key that gives no field a value.

ghost use Rattle.std.specs.Prelude.{Some};
ghost use Rattle.wasm_gen_config.specs.Shown.{key_line, takes_text};

use std::error::Error;
use std::fmt;

// The largest integer of TOML.
const MAX_INTEGER: u128 = (1 << 63) - 1;

/// The values that a field takes.
#[derive(Clone, Copy, Debug, PartialEq, Eq)]
pub enum Takes {
    /// True and false.
    Boolean,
    /// Whole numbers from 0 to this one.
    NumberTo(u128),
    /// Strings that name kinds of instructions, separated by commas.
    Kinds,
    /// Strings of three numbers, separated by commas.
    Weights,
}

impl fmt::Display for Takes {
    ghost output = { λ what. Some (takes_text what) };

    fn fmt<W: fmt::Write>(&self, f: &mut fmt::Formatter<W>) -> fmt::Result {
        match self {
            Takes::Boolean => f.write_str("true or false"),
            Takes::NumberTo(most) => {
                // A TOML integer ends there.
                let most = (*most).min(MAX_INTEGER);
                write!(f, "a whole number from 0 to {most}")
            },
            Takes::Kinds => f.write_str(
                "a string of names of kinds, separated by commas without blanks, such as \"Numeric,Control\"",
            ),
            Takes::Weights => f.write_str(
                "a string of three numbers from 0 to 4294967295, separated by commas without blanks, such as \"90,9,1\"",
            ),
        }
    }
}

/// A key of a table that is no field's name, or has a value that its field doesn't take.
#[derive(Clone, Copy, Debug, PartialEq, Eq)]
pub struct BadKey<'a> {
    /// The key.
    pub key: &'a str,
    /// The values that the field of this name takes, or `None` where no field has this name.
    pub takes: Option<Takes>,
}

impl fmt::Display for BadKey<'_> {
    ghost output = { λ bad. Some (key_line bad.key.now bad.takes) };

    fn fmt<W: fmt::Write>(&self, f: &mut fmt::Formatter<W>) -> fmt::Result {
        let key = self.key;
        match self.takes {
            Some(takes) => write!(f, "{key} takes {takes}"),
            None => write!(f, "{key} isn't a field"),
        }
    }
}

impl Error for BadKey<'_> {}

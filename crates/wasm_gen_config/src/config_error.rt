//! Why a text isn't read as a configuration.

ghost use Rattle.wasm_gen_config.specs.Shown.{error_line};

use crate::bad_key::{BadKey, Takes};
use std::error::Error;
use std::fmt;
use toml::de;

/// The reason why a text gives no configuration.
#[derive(Debug, Drop)]
pub enum ConfigError {
    /// The text isn't TOML in UTF-8. The cause is shown with the line and the column, and ends its line.
    Text(de::Error),
    /// A key is no field's name, or has a value that its field doesn't take. It is shown as a `BadKey` is.
    Key {
        /// The key.
        key: String,
        /// The values that the field of this name takes, or `None` where no field has this name.
        takes: Option<Takes>,
    },
    /// Memory ran out.
    Memory,
}

impl fmt::Display for ConfigError {
    ghost output = { error_line };

    fn fmt<W: fmt::Write>(&self, f: &mut fmt::Formatter<W>) -> fmt::Result {
        match self {
            ConfigError::Text(cause) => write!(f, "{cause}"),
            ConfigError::Key { key, takes } => {
                let bad = BadKey {
                    key: key.as_str(),
                    takes: *takes,
                };
                write!(f, "{bad}")
            }
            ConfigError::Memory => f.write_str("out of memory"),
        }
    }
}

impl Error for ConfigError {}

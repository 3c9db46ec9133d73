//! One word that gives a value.
ghost use Rattle.rules.specs.Words.{SettingRead};

use crate::ArgumentError;
use crate::numbers::{mark, number};
use std::str::FromStr;

/// A value that is given: to a mark, or to all marks that are given none.
#[derive(Clone, Copy, PartialEq, Eq, Debug)]
pub enum Setting {
    Mark { mark: u64, value: u64 },
    Others(u64),
}

/// What a word gives: `MARK=VALUE`, or `else=VALUE`.
impl FromStr for Setting {
    type Err = ArgumentError;

    ghost from_str_gives = { SettingRead };

    fn from_str(word: &str) -> Result<Setting, ArgumentError> {
        let (name, value) = word.split_once('=').ok_or(ArgumentError::NoSetting)?;
        let value = number(value)?;
        if name == "else" {
            return Ok(Setting::Others(value));
        }
        let mark = mark(name)?;
        Ok(Setting::Mark { mark, value })
    }
}

//! The value of each mark.
ghost use Rattle.std.specs.Prelude.{◌≡◌, replicate, IfOk};
ghost use Rattle.rules.specs.Values.{said, others, given, values_of};

use crate::Setting;
use crate::numbers::MAX_MARK;
use std::alloc::{AllocError, Global};

/// The value of all marks that are given none, after a setting.
fn next_other(other: u64, setting: Setting) -> u64
    ensures { result ≡ said other setting }
{
    match setting {
        Setting::Mark { .. } => other,
        Setting::Others(value) => value,
    }
}

/// The value of all marks that are given none: the last that some settings say, or else `default`.
fn last_other(default: u64, settings: &[Setting]) -> u64
    ensures { result ≡ others default settings.now }
{
    let mut other = default;
    for setting in settings {
        other = next_other(other, *setting);
    }
    other
}

/// Gives a mark its value.
fn give(values: &mut [u64], setting: Setting)
    ensures { values.new ≡ given values.old setting }
{
    if let Setting::Mark { mark, value } = setting {
        // By an index: after a write through `get_mut` the proof knows the slice only by names that are the prover's own.
        if (mark as usize) < values.len() {
            values[mark as usize] = value;
        }
    }
}

/// Gives marks their values, one after the other.
fn give_all(values: &mut [u64], settings: &[Setting])
    ensures { values.new ≡ values_of values.old settings.now }
{
    for setting in settings {
        give(values, *setting);
    }
}

/// The values of all marks, 0 to 7423, by some settings; of two for one mark the later one counts.
pub fn values(heap: Global, default: u64, settings: &[Setting]) -> Result<Vec<u64>, AllocError>
    ensures { IfOk result (λ v. v.items ≡ values_of (replicate 7424 (others default settings.now)) settings.now) }
{
    let other = last_other(default, settings);
    let mut values = vec![in heap; other; MAX_MARK as usize + 1]?;
    give_all(values.as_mut_slice(), settings);
    Ok(values)
}

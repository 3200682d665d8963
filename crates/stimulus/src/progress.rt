//! What a reader keeps from line to line.

ghost use Rattle.std.specs.Prelude.{◌≡◌, ℕ, ◌<◌, [], ◌∷◌, ◌++◌, length, slice_set, replicate, Some, None, IfOk, OnOk};

use crate::stimulus::Setting;
use bit_words::List;
use std::alloc::{AllocError, Global};

/// The settings so far.
#[derive(Drop)]
pub struct Progress {
    /// The cycle of the last setting, 0 before the first.
    pub last: u64,
    /// For each input the cycle in which it was set last.
    pub set_in: List<Option<u64>>,
    pub settings: List<Setting>,
}

/// No setting so far, of so many inputs.
pub fn no_progress(alloc: Global, inputs: usize) -> Result<Progress, AllocError>
    ensures last { IfOk result (λ progress. progress.last ≡ 0) }
    ensures set_in { IfOk result (λ progress. progress.set_in ≡ replicate inputs None) }
    ensures settings { IfOk result (λ progress. progress.settings ≡ []) }
{
    let mut set_in = List::new(alloc);
    for _ in 0..inputs {
        set_in.push(None)?;
    }
    Ok(Progress {
        last: 0,
        set_in,
        settings: List::new(alloc),
    })
}

/// Adds a setting.
pub fn note(progress: &mut Progress, setting: Setting) -> Result<(), AllocError>
    requires { setting.input < length progress.old.set_in }
    ensures last { OnOk result (progress.new.last ≡ setting.cycle) }
    ensures set_in { OnOk result (progress.new.set_in ≡ slice_set progress.old.set_in setting.input (Some setting.cycle)) }
    ensures settings { OnOk result (progress.new.settings ≡ progress.old.settings ++ setting ∷ []) }
{
    progress.settings.push(setting)?;
    progress
        .set_in
        .set(setting.input as usize, Some(setting.cycle));
    progress.last = setting.cycle;
    Ok(())
}

//! The workers of an epoch, before they start.

ghost use Rattle.std.specs.Prelude.{◌≡◌, ℕ, ◌+◌, ◌*◌, ◌^◌, ◌<◌, ◌≤◌, length, vec_len, vec_capacity, slice_index_or, IfOk};
ghost use Rattle.phase_core.specs.Sound.{view};
ghost use Rattle.register_table.specs.Shown.{ComesFrom};
ghost use Rattle.worker_crew.specs.Crew.{Fresh};
ghost use Rattle.worker_crew.specs.Numbers.{Manned};
ghost use Rattle.crew_workers.specs.Turns.{Serves};
ghost use Rattle.crew_workers.specs.Scripts.{script_of, Runs};
ghost use Rattle.crew_workers.specs.Standing.{Each};

use crate::crew::Shared;
use crate::crowd::keep;
use crew_workers::Worker;
use register_table::{Plan, Post};
use std::alloc::{AllocError, Global};

fn hire<'a, N: Plan>(
    alloc: Global,
    shared: &Shared<'_, 'a, N>,
    words: &[u64],
    number: usize,
    post: Post<N>,
) -> Result<Worker<'a, N>, AllocError>
    requires script { N.script ≡ script_of shared.now.codes.now words.now shared.now.rows.now }
    requires runs { Runs shared.now.codes.now words.now shared.now.rows.now }
    requires few { length shared.now.codes.now ≤ 64 }
    requires serves { Serves shared.now.codes.now shared.now.room }
    requires number { number < length shared.now.codes.now }
    requires table { ComesFrom post shared.now.table.now }
    requires view { post.view ≡ view number (number + 1) 0 0 0 }
    ensures fresh { IfOk result (λ w. Fresh shared.now w) }
    ensures number { IfOk result (λ w. w.desk.duty.number ≡ number) }
{
    let codes = shared.codes;
    let code = &codes[number];
    let worker = Worker::new(alloc, number as u32, code, post, shared.rows)?;
    Ok(worker)
}

// Shares the post, and makes a worker for each code. The worker 0 stands last.
pub(crate) fn hire_all<'a, N: Plan>(
    alloc: Global,
    shared: &Shared<'_, 'a, N>,
    words: &[u64],
    post: Post<N>,
) -> Result<Vec<Worker<'a, N>>, AllocError>
    requires script { N.script ≡ script_of shared.now.codes.now words.now shared.now.rows.now }
    requires runs { Runs shared.now.codes.now words.now shared.now.rows.now }
    requires few { length shared.now.codes.now ≤ 64 }
    requires serves { Serves shared.now.codes.now shared.now.room }
    requires table { ComesFrom post shared.now.table.now }
    requires view { post.view ≡ view 0 (length shared.now.codes.now) 0 0 0 }
    ensures workers { IfOk result (λ ws. Each (Fresh shared.now) ws.items) }
    ensures many { IfOk result (λ ws. vec_len ws ≡ length shared.now.codes.now) }
    ensures manned { IfOk result (λ ws. Manned (length shared.now.codes.now) ws.items) }
{
    let mut workers = Vec::with_capacity(alloc, shared.codes.len())?;
    let mut post = post;
    let mut number = shared.codes.len();
    while number > 1 {
        number -= 1;
        let upper = post.share(shared.table, number as u32);
        let worker = hire(alloc, shared, words, number, upper)?;
        keep(shared, worker, &mut workers);
    }
    let worker = hire(alloc, shared, words, 0, post)?;
    keep(shared, worker, &mut workers);
    Ok(workers)
}

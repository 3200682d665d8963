//! Loads through a post.

ghost use Rattle.std.specs.Prelude.{◌≡◌, ◌/◌, ◌%◌};
ghost use Rattle.std.proofs.Common.{refl, ap, ◌∙◌, subst, sym};
ghost use Rattle.phase_core.specs.declared.model.View.{View};
ghost use Rattle.phase_core.specs.Script.{values};
ghost use Rattle.register_table.specs.Shown.{ComesFrom};

use flat_code::Loads;
use register_table::{Plan, Post, RegisterTable};

// The words of a table at the beginning of the cycle that a post is in.
#[derive(Drop)]
pub(crate) struct Reading<'p, 't, N: Plan> {
    pub(crate) post: &'p mut Post<N>,
    pub(crate) table: &'t RegisterTable<N>,
}

impl<'p, 't, N: Plan> Loads for Reading<'p, 't, N> {
    ghost words = { λ l. values N.script (l.post.now.view.passed / 2) };

    ghost ready = { λ l. ComesFrom l.post.now l.table.now × (l.post.now.view.arrivals ≡ l.post.now.view.passed) × (l.post.now.view.passed % 2 ≡ 0) };

    ghost same = { λ a b. (b.post.ghost_name ≡ a.post.ghost_name) × (b.post.now.view ≡ a.post.now.view) × (b.table.now ≡ a.table.now) × (b.post.now.seat.table_id ≡ a.post.now.seat.table_id) };

    fn load(&mut self, word: u32) -> u64 {
        self.post.read(self.table, word)
    }

    ghost same_words = { λ a b e. ap (λ (v : View). values N.script (v.passed / 2)) e.1 };

    ghost same_ready = { λ a b e r. (e.3 ∙ r.0 ∙ ap (λ t. t.table.shared.table_id) (sym e.2), ap (λ (v : View). v.arrivals) e.1 ∙ r.1 ∙ ap (λ (v : View). v.passed) (sym e.1), ap (λ (v : View). v.passed % 2) e.1 ∙ r.2) };

    ghost same_self = { λ a. (refl, refl, refl, refl) };

    ghost same_on = { λ a b c e f. (f.0 ∙ e.0, f.1 ∙ e.1, f.2 ∙ e.2, f.3 ∙ e.3) };
}

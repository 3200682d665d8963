//! What nets and circuits of ground statements need that are made by hand: drivers that choose, and a module alone.
ghost use Rattle.std.specs.Prelude.{ℕ, ◌<◌, ◌^◌, length, All, Some, IfOk};
ghost use Rattle.base_cases.specs.Drivers.{ReadsBelow};

use bit_words::List;
use ground_net::{Ground, GroundCircuit, GroundLeaf, GroundModule, GroundStmt};
use std::alloc::{AllocError, Global};

/// The second leaf where the first one is 1, and else the third.
pub fn choice(alloc: Global, first: u32, second: u32, third: u32) -> Result<Ground, AllocError>
    ensures { IfOk result (λ driver. (n : ℕ) → first < n → second < n → third < n → ReadsBelow n (Some driver)) }
{
    let mut items = List::new(alloc);
    items.push(Ground::Leaf(first))?;
    items.push(Ground::Leaf(second))?;
    items.push(Ground::Leaf(third))?;
    Ok(Ground::Mux(items))
}

/// A circuit of one module that has these leaves and this body, and nothing else.
pub fn module_alone(
    alloc: Global,
    leaves: List<GroundLeaf>,
    body: List<GroundStmt>,
) -> Result<GroundCircuit, AllocError>
    requires { length leaves < 2 ^ 32 }
    ensures { IfOk result (λ ground. All (λ m. length m.leaves < 2 ^ 32) ground.modules) }
{
    let mut modules = List::new(alloc);
    modules.push(GroundModule {
        ports: 0,
        leaves,
        body,
        registers: List::new(alloc),
        memories: List::new(alloc),
        instances: List::new(alloc),
    })?;
    Ok(GroundCircuit { modules, main: 0 })
}

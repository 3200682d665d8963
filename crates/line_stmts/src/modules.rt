//! Modules, and the circuit.

ghost use Rattle.std.specs.Prelude.{◌≡◌, ◌++◌, [], IfOk};
ghost use Rattle.fir_tree.specs.Numbered.{IsDistinct};
ghost use Rattle.fir_tree.specs.declared.circuit.Circuit.{Circuit as TheCircuit};
ghost use Rattle.item_lines.specs.Items.{modules_of, module_of};
ghost use Rattle.line_stmts.specs.Walks.{Stood};

use crate::heads::heads_of;
use crate::maker::Maker;
use crate::walk::{append, statements_of};
use bit_words::List;
use fir_tree::{Circuit, Module, Names};
use fir_types::Name;
use item_lines::LineModule;
use std::alloc::{AllocError, Global};
use std::mem;

/// The circuit of this main module that lines stand for, where the text has these names. Is refused for want of memory alone, or of
/// numbers for the names of items.
pub fn stand(
    alloc: Global,
    names: Names,
    main: Name,
    lines: List<LineModule>,
) -> Result<Circuit, AllocError>
    requires { IsDistinct names }
    ensures { IfOk result (λ circuit. ◌≡◌ {A = TheCircuit} circuit (record { names = (modules_of 0 lines names).1; main = main; modules = (modules_of 0 lines names).0.0; prints = (modules_of 0 lines names).0.1 })) }
{
    let mut maker = Maker {
        names,
        module: 0,
        places: List::new(alloc),
        prints: List::new(alloc),
    };
    let mut modules = List::new(alloc);
    for module in lines.into_vec() {
        let Ok(number) = u32::try_from(modules.len()) else {
            return Err(AllocError);
        };
        maker.module = number;
        modules.push(stand_module(alloc, &mut maker, module)?)?;
    }
    let Maker { names, prints, .. } = maker;
    Ok(Circuit {
        names,
        main,
        modules,
        prints,
    })
}

/// A module, whose items are appended to those before.
fn stand_module(alloc: Global, maker: &mut Maker, lines: LineModule) -> Result<Module, AllocError>
    requires { IsDistinct maker.old.names }
    ensures { IfOk result (λ made. Stood (module_of maker.old.module lines maker.old.names) maker.old maker.new made) }
{
    maker.places = List::new(alloc);
    let LineModule { name, ports, body } = lines;
    let statements = statements_of(alloc, maker, body)?;
    let places = mem::replace(&mut maker.places, List::new(alloc));
    let Ok(_count) = u32::try_from(places.len()) else {
        return Err(AllocError);
    };
    let mut body = heads_of(alloc, &mut maker.names, places.as_slice())?;
    append(&mut body, statements)?;
    Ok(Module { name, ports, body })
}

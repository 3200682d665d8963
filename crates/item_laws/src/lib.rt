//! Laws of what `printf` and `stop` lines stand for: the wire of each item is connected by its head and by the item alone, and in a well
//! formed circuit the wires and the nodes of all items are there. The functions here do nothing: their contracts are the laws.
#![tactic(auto)]

pub mod laws;

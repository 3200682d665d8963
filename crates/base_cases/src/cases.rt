//! The cases, a module for each subject.

mod boxes;
mod made;
mod operations;
mod phases;
mod pools;
mod posts;
mod shelves;
mod telling;
mod text_places;

//! Trees and sections of worked messages, by the public calls of mime_tree.
mod section;
mod trees;

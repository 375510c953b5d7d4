//! The ropes of worked messages, by the public calls of surrogate_rope.
mod hostile;
mod ropes;

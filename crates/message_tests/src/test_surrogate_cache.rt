//! What is shown of worked messages, in both kinds of session, and the cache of their ropes, by the public calls of surrogate_cache.
mod fetches;
mod showing;

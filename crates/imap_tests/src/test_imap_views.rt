//! The views of worked messages, by the public calls of imap_views.
mod chosen;
mod views;

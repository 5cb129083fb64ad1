//! Which failure each error tells of.

mod cloning;
mod conversing;
mod fetching;
mod sharing;

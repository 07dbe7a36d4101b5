//! Texts held, joined and cut, and views of texts.

mod growing;
mod orders;
mod shelf;
mod views;

//! A page that shows a schedule: a drawing in the vector format SVG. The definitions stand in `specs/`;
//! the functions here write the page.
#![tactic(auto)]

mod axis;
mod bars;
mod cumuls;
mod labels;
mod lanes;
mod page;
mod places;
mod profiles;
mod shades;
mod states;
mod text;
mod ticks;

pub use page::svg_page;

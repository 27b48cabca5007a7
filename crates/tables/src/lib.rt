// "Refusal numbers": the refusals that depend on numbers alone, a table a file, read row by row: the first that holds, if any.
#![tactic(auto)]

mod form;
mod parts;
mod pich;
mod settings;
mod user;

pub use form::check_form;
pub use parts::check_parts;
pub use pich::check_pich;
pub use settings::check_settings;
pub use user::check_user;

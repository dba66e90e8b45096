//! The objects of a server: what each answers to a call, and what it is afterwards.
#![tactic(auto)]

mod adapter;
mod add_fault;
mod admitting;
mod arguments;
mod echo;
mod enclosing;
mod first_value;
mod ids;
mod inserting;
mod kept;
mod keys;
mod laws;
mod locator;
mod own;
mod places;
mod refusal;
mod results;
mod seeking;
mod servant;
mod store;
mod store_deeds;
mod telling;
mod writing;

pub use adapter::Adapter;
pub use add_fault::AddFault;
pub use echo::Echo;
pub use kept::Kept;
pub use keys::{Found, Keys, MOST_OBJECTS};
pub use laws::objects_are_there;
pub use locator::Locator;
pub use own::Own;
pub use places::{MOST_PLACES, Places};
pub use refusal::{LONGEST, Refusal, Unanswered};
pub use results::Results;
pub use seeking::Sought;
pub use servant::Servant;
pub use store::Store;
pub use store_deeds::Deed;
pub use telling::missed;

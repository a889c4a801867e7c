// Makes up cases, by dice.
pub(crate) mod batch;
pub(crate) mod case;
pub(crate) mod grant;
pub(crate) mod state;
pub(crate) mod value;

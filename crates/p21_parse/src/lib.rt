//! Exchanges of ISO 10303-21 clear text: the grammar and its trees, reading a text, and making an exchange of instances.
//!
//! | module | what is in it | calls |
//! |---|---|---|
//! | reading | a whole text is read, and the laws of texts | `read`, `text_laws` |
//! | behind | the rest of a text whose front was read before | `read_behind` |
//! | following | instances alone, from a token on | `instances` |
//! | built | an exchange is made of instances, under the standard header | `Exchange::of` |
//! | laws | what holds of the grammar whatever reads it | `grammar_laws`, `instance_laws` |
//! | exchange | the exchange, its instances and their parts | `Exchange`, `Instance`, `Part` and lists of them |
//! | param | parameters | `Param`, `ParamList` |
//! | error | why a text is not read, and why instances make no exchange | `ReadErr`, `BuildErr` |
//! | limits | the limits of this profile | `MAX_NESTING`, `MAX_INSTANCES` |
//! | file, header, parts, parameters | recursive descent: each reads one thing of the grammar from a token on | none |
//! | parser | the text with its tokens, of which the descent looks at one at a time | none |
//! | names, repeat | the first fault of the instances' names, and where a number stands a second time | none |
//! | fitting, spelling | which instances and which symbols can be written | none |
#![tactic(auto)]

mod behind;
mod built;
mod error;
mod exchange;
mod file;
mod fitting;
mod following;
mod header;
mod laws;
mod limits;
mod names;
mod param;
mod parameters;
mod parser;
mod parts;
mod reading;
mod repeat;
mod spelling;

pub use behind::read_behind;
pub use error::{BuildErr, ReadErr};
pub use exchange::{Exchange, Instance, InstanceList, Part, PartList};
pub use following::instances;
pub use laws::{grammar_laws, instance_laws};
pub use limits::{MAX_INSTANCES, MAX_NESTING};
pub use param::{Param, ParamList};
pub use reading::{read, text_laws};

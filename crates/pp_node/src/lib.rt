//! The top call of the program: it does what the words of a command line say, over the devices that it is handed.
#![tactic(auto)]

mod auditing;
mod built;
mod checking;
mod counting;
mod exporting;
mod importing;
mod looking;
mod named_exporting;
mod named_fetching;
mod named_seeding;
mod naming;
mod playing;
mod preparing;
mod printing;
mod ranges;
mod recording;
mod refusing;
mod replaying;
mod seeding;
mod status;
mod taking;
mod top;
mod upgrading;

pub use status::Status;
pub use top::run;

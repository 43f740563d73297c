//! The digests that peers claim, and whether they lead from a chunk to the root of its swarm (RFC 7574, sections 5.2 and
//! 5.6). A chunk is judged by the book before the claims; what fits is adopted by the book. Only `Claims::new` takes memory.
#![tactic(auto)]

mod claims;
mod climbing;
mod judging;
mod laws;
mod settling;

pub use claims::Claims;
pub use judging::{Verdict, adopt, judge, judge_and_adopt};
pub use laws::laws_of_judging;
pub use settling::{Settled, settle_peaks, wrong_node};

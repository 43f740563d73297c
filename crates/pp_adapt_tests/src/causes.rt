// What is printed of why a call was refused.
use std::alloc::Global;
use std::fmt::Display;
use std::process::Abort;

pub(crate) fn is_told(
    rt: &impl Abort,
    alloc: Global,
    cause: Option<impl Display + Drop>,
    want: &str,
) {
    match cause {
        Some(cause) => match format!(in alloc; "{cause}") {
            Ok(text) => assert_eq!(rt; text.as_str(), want),
            Err(_) => rt.panic("no memory"),
        },
        None => rt.panic("nothing was refused"),
    }
}

//! What holds of all messages. These functions do nothing: their contracts are the laws.

ghost use Rattle.pp_terms.specs.format.Messages.{SpeltIsRead, OneMessage, OneByOne, GrowsByOne};
ghost use Rattle.pp_terms.specs.format.MessageExample.{MessageExamples};

/// Messages follow from their bytes: what was spelled is read again, whatever follows, and no spelling of a message begins
/// another's, but that a DATA of fewer bytes than a chunk can begin a longer one and so ends its datagram.
pub fn one_message()
    ensures again { SpeltIsRead }
    ensures one { OneMessage }
{}

/// A datagram is read message by message, and a message that is put behind it is read behind the others.
pub fn one_datagram()
    ensures parts { OneByOne }
    ensures grows { GrowsByOne }
{}

/// Messages at bytes that were worked out by hand.
pub fn worked_messages()
    ensures { MessageExamples }
{}

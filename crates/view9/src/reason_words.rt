//! What pictures and pages say of a break, by its reason.

use block9::Reason;

/// The words of a reason.
#[derive(Clone, Copy)]
pub struct ReasonWords {
    /// What happened, as a picture says it; of a wrong sum what stands before the sum.
    pub sentence: &'static str,
    /// What that means, as markup.
    pub meaning: &'static str,
    /// Who is at fault.
    pub fault: &'static str,
}

impl ReasonWords {
    /// Those of this reason.
    pub fn of(reason: Reason) -> ReasonWords {
        match reason {
            Reason::WrongGroup => ReasonWords {
                sentence: "The block begins with a group that belongs on the other wire.",
                meaning: "A block begins with a group that belongs on the other wire.",
                fault: "the sender of the block",
            },
            Reason::WrongSum => ReasonWords {
                sentence: "The sum of the block's earlier bytes is ",
                meaning: "The block's last byte is not its checksum, the sum of all its earlier bytes modulo 256.",
                fault: "the sender of the block, or the line",
            },
            Reason::ByteGap => ReasonWords {
                sentence: "Inside a block there was a longer silence than the byte gap.",
                meaning: "More than 10,287 &#181;s lie between two bytes of one block.",
                fault: "the sender of the block",
            },
            Reason::ReplyWithoutCommand => ReasonWords {
                sentence: "The deck sent a byte while no command was waiting for one.",
                meaning: "The deck sent a byte while no command was waiting for a reply.",
                fault: "the deck",
            },
            Reason::ReplyInsideCommand => ReasonWords {
                sentence: "The deck sent a byte before the command was whole.",
                meaning: "The deck answered before the command was complete.",
                fault: "the controller, the deck or the tap",
            },
            Reason::CommandBeforeReply => ReasonWords {
                sentence: "The controller went on after a whole command, within the reply limit and before a reply.",
                meaning: "After a complete command the controller sent another byte, before the deck replied and before the reply timed out.",
                fault: "the controller",
            },
            Reason::CommandInsideReply => ReasonWords {
                sentence: "The controller sent a byte inside the deck's reply.",
                meaning: "The controller sent a byte before the deck's reply was complete.",
                fault: "the deck, the controller or the tap",
            },
            Reason::WrongReply => ReasonWords {
                sentence: "A reply of this kind is not right for the command.",
                meaning: "The reply is a complete block, but not one that this command may have.",
                fault: "the deck",
            },
            Reason::InvalidCommandTime => ReasonWords {
                sentence: "The four data bytes of the command are no valid time.",
                meaning: "A command carries a time that no clock shows at the frame rate.",
                fault: "the controller; or nobody, if the machine runs at another frame rate",
            },
            Reason::InvalidReplyTime => ReasonWords {
                sentence: "The four data bytes of the reply are no valid time.",
                meaning: "A reply carries a time that no clock shows at the frame rate.",
                fault: "the deck or its tape; or nobody, if the machine runs at another frame rate",
            },
            Reason::LateReply => ReasonWords {
                sentence: "The reply began after the reply limit.",
                meaning: "The reply began more than 9,287 &#181;s after the command.",
                fault: "the deck",
            },
            Reason::NoReply => ReasonWords {
                sentence: "The controller went on after the reply limit, and the deck had not replied.",
                meaning: "The reply timed out, and the controller sent its next command.",
                fault: "the deck",
            },
            Reason::NoRun => ReasonWords {
                sentence: "No deck can have given this reply after all that came before it.",
                meaning: "No deck could have given all the replies so far: they contradict one another, or the commands that the deck was sent.",
                fault: "the deck; or nobody, if somebody touched its panel, if the machine runs at another frame rate, or if the deck differs from the rules",
            },
        }
    }
}

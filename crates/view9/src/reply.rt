//! What a reply is, by its first two bytes.

/// What a reply is.
#[derive(Clone, Copy)]
pub enum Reply {
    Ack,
    Nak,
    DeviceType,
    /// A time of the tape.
    TapeTime,
    /// A time of the timer.
    TimerTime,
    InData,
    OutData,
    AudioInData,
    AudioOutData,
    Status,
}

impl Reply {
    /// The one with these first two bytes, as one number, if there is one.
    pub fn of(head: u32) -> Option<Reply> {
        match head {
            0x10_01 => Some(Reply::Ack),
            0x11_12 => Some(Reply::Nak),
            0x12_11 => Some(Reply::DeviceType),
            0x74_00 | 0x74_01 => Some(Reply::TimerTime),
            0x74_04 | 0x74_06 | 0x74_14 | 0x74_16 => Some(Reply::TapeTime),
            0x74_10 => Some(Reply::InData),
            0x74_11 => Some(Reply::OutData),
            0x74_12 => Some(Reply::AudioInData),
            0x74_13 => Some(Reply::AudioOutData),
            _ if head / 0x10_00 == 7 && head % 256 == 0x20 => Some(Reply::Status),
            _ => None,
        }
    }

    /// What it is called.
    pub fn name(self) -> &'static str {
        match self {
            Reply::Ack => "ACK",
            Reply::Nak => "NAK",
            Reply::DeviceType => "DEVICE TYPE",
            Reply::TapeTime | Reply::TimerTime => "TIME",
            Reply::InData => "IN DATA",
            Reply::OutData => "OUT DATA",
            Reply::AudioInData => "AUDIO IN DATA",
            Reply::AudioOutData => "AUDIO OUT DATA",
            Reply::Status => "STATUS",
        }
    }
}

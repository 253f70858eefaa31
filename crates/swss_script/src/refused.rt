// Why a script is refused.
use swss_image::ImageFault;
use table_schema::PlanWhy;

/// Why a script is refused: the first of these that holds of its first faulty line.
#[derive(Clone, Copy, Debug, PartialEq, Eq)]
pub enum Why {
    /// It has more than 67,108,864 bytes.
    TooLong,
    /// It has a line 1,000,001.
    TooManyLines,
    /// A line has more than 65,536 bytes.
    LineTooLong,
    /// The bytes of a line are not UTF-8.
    NotUtf8,
    /// A word of the head stands after the head, or has wrong words behind it.
    BadHead,
    /// A kind, a failing call or an image stands for the second time.
    HeadTwice,
    /// The plan refuses the port of a line.
    BadPlan(PlanWhy),
    /// An image is refused.
    BadImage(ImageFault),
    /// It has a fifth producer.
    TooManyProducers,
    /// A batch is not a list of writes, or has no end.
    BadJson,
    /// A line is none of the language, or not in its place.
    BadWord,
}

/// A script that was refused: the line, counted from 1 and 0 for the script as a whole, and the reason.
#[derive(Clone, Copy, Debug, PartialEq, Eq)]
pub struct Refused {
    /// The line.
    pub line: u64,
    /// The reason.
    pub why: Why,
}

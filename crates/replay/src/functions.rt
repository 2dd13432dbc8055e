// The functions that are replayed.
#[derive(Clone, Copy, Debug, PartialEq, Eq)]
pub enum Function {
    ReadKex,
    WriteKex,
    FrameRead,
    FrameWrite,
    Open,
    Confirmation,
    Fail,
    UnknownType,
    Show,
}

pub const COUNT: usize = 9;

// In the report's order, which is that of the variants.
pub const FUNCTIONS: [Function; COUNT] = [
    Function::ReadKex,
    Function::WriteKex,
    Function::FrameRead,
    Function::FrameWrite,
    Function::Open,
    Function::Confirmation,
    Function::Fail,
    Function::UnknownType,
    Function::Show,
];

impl Function {
    pub fn name(self) -> &'static str {
        match self {
            Function::ReadKex => "read_kex",
            Function::WriteKex => "write_kex",
            Function::FrameRead => "frame_read",
            Function::FrameWrite => "frame_write",
            Function::Open => "open",
            Function::Confirmation => "confirmation",
            Function::Fail => "fail",
            Function::UnknownType => "unknown_type",
            Function::Show => "show",
        }
    }

    pub fn of_name(name: &[u8]) -> Option<Function> {
        FUNCTIONS
            .iter()
            .copied()
            .find(|f| f.name().as_bytes() == name)
    }
}

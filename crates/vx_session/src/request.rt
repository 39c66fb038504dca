use vx_sector::Cmd;

/// A command that is asked for from the seat of that number.
#[derive(Clone, Copy, Debug, PartialEq, Eq)]
pub struct Request {
    pub seat: u8,
    pub cmd: Cmd,
}

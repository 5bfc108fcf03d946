/// A text that is to be written, and whether it tells that some configuration is refused.
#[derive(Debug, Drop)]
pub struct Output {
    pub lines: Vec<u8>,
    pub is_refused: bool,
}

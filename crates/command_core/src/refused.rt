// Why the input of a command is refused.
ghost use Rattle.command_core.specs.Told.{IsRefusalLine, IsRefusalLine-prop};

use written_texts::LineText;

/// Why the input is refused: the line that tells it, which is made of a fault without memory.
#[derive(Drop)]
pub struct Refusal {
    pub line: LineText<128>,
    pub ghost refuses: { IsRefusalLine line } by { IsRefusalLine-prop line },
}

// What the lines of an exchange list (docs/EXCHANGE.md) say: `line` tells calls from remarks, `words` divides a line,
// `literal` has its bytes, `buffers` the bytes behind names, and `operands` the calls and what their words must be.
// `fixed_literal`, `fixed_buffers` and `fixed_operands` do the same in memory that is lent and of a fixed size, where
// no call can fail.
#![tactic(auto)]

pub mod buffers;
pub mod fixed_buffers;
pub mod fixed_literal;
pub mod fixed_operands;
pub mod line;
pub mod literal;
pub mod operands;
pub mod words;

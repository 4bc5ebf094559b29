//! What no clause says of a lane: that its calls succeed where memory is ample, and the octets of another
//! implementation. What a lane answers to more calls is tested over the built program, by the rows of `tests/rows` and
//! by `tests/models/longest_lists.py`.

mod answers;
mod example;
mod rounds;

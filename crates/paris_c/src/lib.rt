//! The session of a script as calls from C. `bindings/c/paris.h` declares them.
#![tactic(auto)]

mod contents;
mod desk_calls;
mod desk_handle;
mod desk_lines;
mod desk_work;
mod exports;
mod faults;
mod handle;
mod inputs;
mod laws;
mod looks;
mod order_handle;
mod order_state;
mod orders;
mod overviews;
mod rooms;
mod running;
mod seat_handle;
mod seat_looks;
mod seating;
mod statuses;
mod stretches;
mod texts;
mod threads;
mod turns;
mod unsettled;
mod wide;

//! Threads call and return, handshakes run beside them, and threads act while the coordinator does something else. Each test defines the
//! part of its threads and the part of its coordinator; `beside` runs both at once.
mod beside;
mod census;
mod four;
mod invalidated;
mod leaving;
mod many;
mod meeting;
mod sides;
mod threads;

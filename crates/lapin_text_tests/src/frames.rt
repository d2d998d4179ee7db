//! The bytes of frames: rows of bytes with what is read of them, most of them as RabbitMQ's own codec writes them, which one driver runs.

mod carried;
mod driver;
mod limits;
mod rows;
mod tables;

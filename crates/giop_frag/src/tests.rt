mod blocks;
mod gathering;
mod limits;
mod memory;

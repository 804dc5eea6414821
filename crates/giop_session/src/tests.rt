mod server;
mod sessions;

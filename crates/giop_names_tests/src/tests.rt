mod ids;
mod plain;

//! The numbers of the messages' types (RFC 7574, section 8.2).

pub const HANDSHAKE: u8 = 0;

pub const DATA: u8 = 1;

pub const ACK: u8 = 2;

pub const HAVE: u8 = 3;

pub const INTEGRITY: u8 = 4;

pub const PEX_RES_4: u8 = 5;

pub const PEX_REQ: u8 = 6;

pub const REQUEST: u8 = 8;

pub const CANCEL: u8 = 9;

pub const CHOKE: u8 = 10;

pub const UNCHOKE: u8 = 11;

pub const PEX_RES_6: u8 = 12;

// The one table of names, as columns. A name's row is its place here: the kinds stand one after the other.
// A row's spelling is the LENGTHS[row] bytes of SPELLINGS from STARTS[row] on.
//
// Copyright 2016 Pierre-Étienne Meunier, licensed under the Apache License, Version 2.0 (NOTICE); changed: rewritten for
// lent slices and tables of numbers.
ghost use Rattle.names.specs.Constant.{AreConstant};

use super::Columns;

// The constant columns, lent for as long as is asked.
pub fn columns<'a>() -> Columns<'a, 'a>
    ensures { AreConstant result }
{
    Columns {
        spellings: &SPELLINGS,
        starts: &STARTS,
        lengths: &LENGTHS,
    }
}

pub const SPELLINGS: [u8; 902] = *b"\
    mlkem768x25519-sha256\
    curve25519-sha256\
    curve25519-sha256@libssh.org\
    diffie-hellman-group-exchange-sha256\
    diffie-hellman-group18-sha512\
    diffie-hellman-group17-sha512\
    diffie-hellman-group16-sha512\
    diffie-hellman-group15-sha512\
    diffie-hellman-group14-sha256\
    ext-info-c\
    ext-info-s\
    kex-strict-c-v00@openssh.com\
    kex-strict-s-v00@openssh.com\
    ssh-ed25519\
    ecdsa-sha2-nistp256\
    ecdsa-sha2-nistp384\
    ecdsa-sha2-nistp521\
    rsa-sha2-512\
    rsa-sha2-256\
    ssh-rsa\
    ssh-ed25519-cert-v01@openssh.com\
    ecdsa-sha2-nistp256-cert-v01@openssh.com\
    ecdsa-sha2-nistp384-cert-v01@openssh.com\
    ecdsa-sha2-nistp521-cert-v01@openssh.com\
    rsa-sha2-512-cert-v01@openssh.com\
    rsa-sha2-256-cert-v01@openssh.com\
    ssh-rsa-cert-v01@openssh.com\
    clear\
    none\
    aes128-ctr\
    aes192-ctr\
    aes256-ctr\
    aes128-gcm@openssh.com\
    aes256-gcm@openssh.com\
    aes128-cbc\
    aes192-cbc\
    aes256-cbc\
    chacha20-poly1305@openssh.com\
    none\
    hmac-sha2-512-etm@openssh.com\
    hmac-sha2-256-etm@openssh.com\
    hmac-sha2-512\
    hmac-sha2-256\
    none\
";

pub const STARTS: [u16; 44] = [
    0, 21, 38, 66, 102, 131, 160, 189, 218, 247, 257, 267, 295, 323, 334, 353, 372, 391, 403, 415,
    422, 454, 494, 534, 574, 607, 640, 668, 673, 677, 687, 697, 707, 729, 751, 761, 771, 781, 810,
    814, 843, 872, 885, 898,
];

pub const LENGTHS: [u8; 44] = [
    21, 17, 28, 36, 29, 29, 29, 29, 29, 10, 10, 28, 28, 11, 19, 19, 19, 12, 12, 7, 32, 40, 40, 40,
    33, 33, 28, 5, 4, 10, 10, 10, 22, 22, 10, 10, 10, 29, 4, 29, 29, 13, 13, 4,
];

// By a cipher's number: it needs a MAC.
pub const NEEDS_MAC: [bool; 11] = [
    false, // clear
    false, // none
    true, // aes128-ctr
    true, // aes192-ctr
    true, // aes256-ctr
    false, // aes128-gcm@openssh.com
    false, // aes256-gcm@openssh.com
    true, // aes128-cbc
    true, // aes192-cbc
    true, // aes256-cbc
    false, // chacha20-poly1305@openssh.com
];

// By a cipher's number: it has built-in integrity.
pub const BUILT_IN: [bool; 11] = [
    false, // clear
    false, // none
    false, // aes128-ctr
    false, // aes192-ctr
    false, // aes256-ctr
    true, // aes128-gcm@openssh.com
    true, // aes256-gcm@openssh.com
    false, // aes128-cbc
    false, // aes192-cbc
    false, // aes256-cbc
    true, // chacha20-poly1305@openssh.com
];

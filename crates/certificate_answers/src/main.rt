//! The answer to a certificate, so that it can be compared with another checker's.
//!
//! The words are the names of a table's file and of a certificate's. It prints `yes` and the bound, the fault and its node, or the
//! first byte that no certificate has there.
#![tactic(auto)]

ghost use Rattle.std.specs.Prelude.{◌^◌, ◌<◌, length};
ghost use Rattle.version_table.specs.Table.{IsValidTable};

use bound_certificate::{Cert, CertFormat, read_cert};
use certificate_checker::{CertFault, CheckRoom, check};
use list_types::OutOfMemory;
use shelf_io::read_file;
use shelf_kinds::FileShelf;
use std::alloc::Global;
use std::{env, io};
use version_table::{Table, read_table};

/// The most bytes that are read of a file.
const FILE_BYTES: u64 = 1 << 30;

fn main(rt: HostRuntime) -> io::Result<()> {
    let mut words = Vec::new(rt.alloc());
    for word in env::args(&rt)?.skip(1) {
        words.push(word)?;
    }
    let [table_name, cert_name] = words.as_slice() else {
        return println!(rt; "certificate_answers TABLE CERT");
    };
    let mut shelf = FileShelf::new(&rt);
    let Ok(text) = read_file(rt.alloc(), &mut shelf, table_name.as_str(), FILE_BYTES) else {
        return println!(rt; "no such table");
    };
    let Ok(table) = read_table(rt.alloc(), text.as_slice()) else {
        return println!(rt; "no table");
    };
    let Ok(bytes) = read_file(rt.alloc(), &mut shelf, cert_name.as_str(), FILE_BYTES) else {
        return println!(rt; "no such certificate");
    };
    match read_cert(rt.alloc(), bytes.as_slice()) {
        Err(CertFormat::CertSyntax(byte)) => println!(rt; "byte {byte}"),
        Err(CertFormat::OutOfMemory) => println!(rt; "out of memory"),
        Ok(cert) => match answer(rt.alloc(), &table, &cert) {
            Err(OutOfMemory) => println!(rt; "out of memory"),
            Ok(Ok(bound)) => println!(rt; "yes {bound}"),
            Ok(Err(fault)) => println!(rt; "{:?}, node {}", fault.why, fault.node),
        },
    }
}

/// How a certificate is answered.
fn answer(alloc: Global, table: &Table, cert: &Cert) -> Result<Result<u64, CertFault>, OutOfMemory>
    requires valid { IsValidTable table.now }
    requires few { length cert.now.nodes < 2 ^ 32 }
{
    let mut room = CheckRoom::new(alloc, table)?;
    Ok(check(table, cert, &mut room))
}

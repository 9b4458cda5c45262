ghost use Rattle.std.specs.Prelude.{None};

use crate::answer::line_of;
use ossl_base::{FileRefusal, Files};
use ossl_conf::{MOST_BYTES, is_on, read_conf};
use std::alloc::{AllocError, Global};
use std::test::Fail;

/// The files of this page by their names. They do not tell their contents, and the call of one number fails, the first
/// being 1.
#[derive(Drop)]
struct Folder {
    fail: u64,
    calls: u64,
    faults: u64,
}

impl Files for Folder {
    ghost entries = { λ _. None };

    ghost faults = { λ folder. folder.faults };

    fn read_whole(
        &mut self,
        alloc: Global,
        name: &[u8],
        limit: u64,
    ) -> Result<Vec<u8>, FileRefusal> {
        self.calls = self.calls.saturating_add(1);
        match content_of(name) {
            Some(content) if self.calls != self.fail => {
                if content.len() as u64 > limit {
                    return Err(FileRefusal::TooLong);
                }
                Vec::from_slice(alloc, content).map_err(|_| FileRefusal::NoMemory)
            }
            _ => {
                self.faults = self.faults.saturating_add(1);
                Err(FileRefusal::Failed)
            }
        }
    }
}

fn content_of(name: &[u8]) -> Option<&'static [u8]> {
    match name {
        b"sub.cnf" => Some(b"openssl_conf = openssl_init"),
        b"list.cnf" => Some(LIST),
        b"faulty.cnf" => Some(b"x = 1\nfaulty"),
        b"m.cnf" => Some(b".include m.cnf"),
        b"my file.cnf" => Some(b"name = legacy\n"),
        b"parts/sub.cnf" => Some(PARTS),
        b"section.cnf" => Some(b"[s]\nx = 1"),
        b"both.cnf" => Some(b"x = 2\n.include section.cnf\ny = $x"),
        _ => None,
    }
}

const LIST: &[u8] =
    b"null = off\n[off]\nactivate = 0\ndefault::openssl_conf = init\ninit::providers = p\n";

const PARTS: &[u8] = b"openssl_conf = init\n\
      init::providers = list\n\
      list::first = one\n\
      [one]\n\
      activate = 1\n\
      identity = $::name\n";

/// What a text says where the call of this number fails; 0 is none.
fn answer(alloc: Global, text: &[u8], fail: u64) -> Result<Vec<u8>, AllocError> {
    if text.len() as u64 > MOST_BYTES {
        return Vec::from_slice(alloc, b"too long");
    }
    let mut folder = Folder {
        fail,
        calls: 0,
        faults: 0,
    };
    line_of(alloc, &read_conf(alloc, text, &mut folder))
}

// The texts of cases/configuration_* that are refused, each with its error line.
#[test]
fn faulty_configurations_are_told(rt: HostRuntime) -> Result<(), Fail> {
    let rows: [(&[u8], &[u8]); 21] = [
        (b"[init\n", b"line 1 bracket"),
        (b"[a#b]\n", b"line 1 bracket"),
        (b"[ ]\n", b"line 1 bracket"),
        (b"x = ${a#b}\n", b"line 1 variable a"),
        (b".pragma = x\n", b"line 1 directive"),
        (b"x = $/\n", b"line 1 variable "),
        (b"x = ${}\n", b"line 1 variable "),
        (b"x = $nosuch\n", b"line 1 variable nosuch"),
        (b"x = a${b c\n", b"line 1 variable b?c"),
        (b"openssl_conf\n", b"line 1 equals"),
        (b"x # = 1\n", b"line 1 equals"),
        (b"x = 1\ny\\\nz\n", b"line 2 equals"),
        (
            b"openssl_conf = in\\\nit\ninit::providers = \"p # q\"\n[p # q]\n",
            b"line 4 bracket",
        ),
        (b"= 1\n", b"line 1 name"),
        (b"::x = 1\n", b"line 1 name"),
        (b"s:: = 1\n", b"line 1 name"),
        (b".include ''\n", b"line 1 name"),
        (b"openssl_conf = nosuch\n", b"section nosuch"),
        (b"openssl_conf =\n", b"section "),
        (
            b"openssl_conf = init\n\
              init::alg_section = properties\n\
              properties::default_properties = a=1,b,A=2\n",
            b"query 6",
        ),
        (
            b"openssl_conf = i\n\
              i::providers = p\n\
              p::legacy = l\n\
              l::activate = maybe\n",
            b"activate maybe",
        ),
    ];
    let alloc = rt.alloc();
    for (text, cause) in rows {
        let mut line = Vec::from_slice(alloc, b"error configuration ")?;
        line.extend_from_slice(cause)?;
        line.push(b'\n')?;
        assert_eq!(rt; answer(alloc, text, 0)?.as_slice(), line.as_slice());
    }
    Ok(())
}

// The example of docs/manual/configuration.md.
const MANUAL: &[u8] = b"# openssl.cnf\n\
      HOME = .\n\
      openssl_conf = openssl_init\n\
      \n\
      [openssl_init]\n\
      providers = provider_sect\n\
      alg_section = evp_properties\n\
      ssl_conf = ssl_sect\n\
      \n\
      [provider_sect] # two of them\n\
      default = default_sect\n\
      legacy = legacy_sect\n\
      \n\
      [default_sect]\n\
      activate = 1\n\
      [legacy_sect]\n\
      activate = yes\n\
      \n\
      [evp_properties]\n\
      default_properties = ?provider=default\n\
      \n\
      [ CA_default ]\n\
      dir = ./demoCA          # Where everything is kept\n\
      certs = $dir/certs\n\
      serial = ${dir}/serial\n\
      policy = $CA_default::dir\n\
      comment = \"OpenSSL # Generated\"\n";

// The other texts of cases/configuration_* that include no file, each with what it sets.
#[test]
fn configurations_are_read(rt: HostRuntime) -> Result<(), Fail> {
    let rows: [(&[u8], &[u8]); 6] = [
        (MANUAL, b"activate default legacy : ?provider=default\n"),
        (b"\n# nothing is set\n", b"activate\n"),
        (
            b"openssl_conf = init\n\
              init::providers = list\n\
              list::first = one\n\
              one::activate = 1\n\
              one::identity = a\\tb\\n\\\"\\'\\#\\$\\x\\\\c\"d\"\n",
            b"activate a?b?\"'#$x\\cd\n",
        ),
        (
            b"openssl_conf = in\\\\\\#it\n\
              [in\\#it]\n\
              providers = \"the list \"\n\
              the list :: default = one\n\
              [one]\n\
              activate = 1\n",
            b"activate ?default\n",
        ),
        (
            b"openssl_conf = init\n\
              [init]\n\
              providers = list\n\
              [list]\n\
              legacy = off\n\
              default = on\n\
              [on]\n\
              activate = no\n\
              [off]\n\
              activate = 1\n\
              [list]\n\
              legacy = on\n\
              base = on\n\
              [on]\n\
              activate = TRUE\n",
            b"activate legacy default base\n",
        ),
        (
            b"# values in their forms\n\
              name = default\n\
              list = providers# a comment\n\
              openssl_conf = the\" \"init\n\
              the init::providers = $list\n\
              the init::alg_section = pro\\\n\
              perties\n\
              [properties]\n\
              query = '?provider=default'\n\
              default_properties = ${query}\",?a='x, y'\"\n\
              [ providers ]\n\
              first = one\n\
              [one]\n\
              activate = ON\n\
              identity = $(default::name)\n",
            b"activate default : ?provider=default,?a='x, y'\n",
        ),
    ];
    for (text, line) in rows {
        assert_eq!(rt; answer(rt.alloc(), text, 0)?.as_slice(), line);
    }
    Ok(())
}

// The texts of cases/configuration_included*, and more that include files.
#[test]
fn files_are_included(rt: HostRuntime) -> Result<(), Fail> {
    let rows: [(&[u8], &[u8]); 11] = [
        (
            b".include sub.cnf\n[openssl_init]\nproviders = p\n[p]\nlegacy = l\n[l]\nactivate = 1\n",
            b"activate legacy\n",
        ),
        (
            b"name = sub\n\
              .include = $name\".cnf\" # a comment\n\
              openssl_init::providers = p\n\
              p::legacy = l\n\
              l::activate = 1\n",
            b"activate legacy\n",
        ),
        (
            b"[p]\n.include list.cnf\nlegacy = l\n[l]\nactivate = 1\n",
            b"activate legacy\n",
        ),
        (
            b"dir = parts\n.include = \"my file.cnf\"\n.include $dir/sub.cnf\n",
            b"activate legacy\n",
        ),
        (b".include m.cnf\n", b"error configuration line 1 depth\n"),
        (
            b"\n\n.include faulty.cnf\n",
            b"error configuration line 2 equals\n",
        ),
        (b".include nosuch\n", b"error read\n"),
        (
            b".include ${f\n",
            b"error configuration line 1 variable f\n",
        ),
        (
            b".include both.cnf\nx = $y$x$s::x$s::z",
            b"error configuration line 2 variable s::z\n",
        ),
        (
            b"[s]\n.include section.cnf\ndefault::openssl_conf = $x",
            b"error configuration section 1\n",
        ),
        (
            b".include section.cnf\nopenssl_conf = $x",
            b"error configuration line 2 variable x\n",
        ),
    ];
    for (text, line) in rows {
        assert_eq!(rt; answer(rt.alloc(), text, 0)?.as_slice(), line);
    }
    Ok(())
}

#[test]
fn a_file_that_fails_is_the_answer(rt: HostRuntime) -> Result<(), Fail> {
    let text = b".include both.cnf\n.include sub.cnf\n[openssl_init]";
    for (fail, line) in [
        (1, b"error read\n".as_slice()),
        (2, b"error read\n"),
        (3, b"error read\n"),
        (4, b"activate\n"),
    ] {
        assert_eq!(rt; answer(rt.alloc(), text, fail)?.as_slice(), line);
    }
    Ok(())
}

#[test]
fn values_have_their_limits(rt: HostRuntime) -> Result<(), Fail> {
    let alloc = rt.alloc();
    for (len, times, line) in [
        (65_535, 255, b"activate\n".as_slice()),
        (65_535, 300, b"error configuration line 257 growth\n"),
        (65_536, 0, b"error configuration line 1 length\n"),
    ] {
        let mut text = Vec::from_slice(alloc, b"a = ")?;
        text.resize(text.len() + len, b'x')?;
        for _ in 0..times {
            text.extend_from_slice(b"\nb = $a")?;
        }
        assert_eq!(rt; answer(alloc, text.as_slice(), 0)?.as_slice(), line);
    }
    Ok(())
}

#[test]
fn a_file_fits_into_what_is_left(rt: HostRuntime) -> Result<(), Fail> {
    let alloc = rt.alloc();
    for (left, line) in [
        (9, b"activate\n".as_slice()),
        (8, b"error limit configuration\n"),
    ] {
        let mut text = Vec::from_slice(alloc, b".include section.cnf\n#")?;
        text.resize(1_048_576 - left, b'x')?;
        assert_eq!(rt; answer(alloc, text.as_slice(), 0)?.as_slice(), line);
    }
    Ok(())
}

#[test]
fn each_byte_in_each_place_has_an_answer(rt: HostRuntime) -> Result<(), Fail> {
    let alloc = rt.alloc();
    let text =
        b"openssl_conf=i\n[i]\nproviders=p\n[p]\na=s\n[s]\nactivate=1\n.include sub.cnf\nx=${a}'$'\\n\\\n";
    for at in 0..text.len() {
        for byte in 0..=255 {
            let mut other = Vec::from_slice(alloc, text)?;
            if let Some(place) = other.get_mut(at) {
                *place = byte;
            }
            assert!(rt; !answer(alloc, other.as_slice(), 0)?.is_empty());
        }
    }
    Ok(())
}

#[test]
fn words_are_read_whatever_their_case(rt: HostRuntime) {
    assert_eq!(rt; is_on(b"YES"), Some(true));
    assert_eq!(rt; is_on(b"oFF"), Some(false));
    assert_eq!(rt; is_on(b"2"), None);
}

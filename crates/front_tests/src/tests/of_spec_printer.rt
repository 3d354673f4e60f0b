// What is printed, and that it is printed of what is read again.

use spec_lexer::lex::lex;
use spec_parser::parse::{ParseFault, parse};
use spec_printer::print::print_spec;
use std::alloc::Global;
use tsl_value::bytes::Bytes;

fn printed(alloc: Global, source: &[u8]) -> Result<Bytes, ParseFault> {
    let Ok(tokens) = lex(alloc, source) else {
        return Err(ParseFault::Memory);
    };
    let tree = parse(alloc, &tokens)?;
    let mut out = Bytes::new(alloc);
    match print_spec(&tree, &mut out) {
        Ok(()) => Ok(out),
        Err(_) => Err(ParseFault::Memory),
    }
}

fn is_printed(alloc: Global, source: &[u8], text: &[u8]) -> bool {
    match printed(alloc, source) {
        Ok(bytes) => bytes.as_slice() == text,
        Err(_) => false,
    }
}

const HEARTBEATS: &[u8] = b"-- heartbeats of devices
in beat: Events[Int]
def since(m: Map[Int, Int], k: Int, t: Int): Int :=
  if Map.contains(m, k) then t - Map.get(m, k) else 0
def old := last(seen, beat)
def now := time(beat)
def gap := since(old, beat, now)
def late := filter(beat, gap > 30)
def upd := Map.add(old, beat, now)
def seen: Events[Map[Int, Int]] := merge(upd, Map.empty[Int, Int])
def ticks: Events[Int] := merge(last(ticks, beat) + 1, 0)
def start := merge(beat, 0)
def quiet := delay(const(50, start), start)
out late
out ticks
out quiet
out Map.size(seen) as devices
";

const HEARTBEATS_PRINTED: &[u8] = b"in beat : Events [ Int ] 
def since ( m : Map [ Int , Int ] , k : Int , t : Int ) : Int := if Map . contains ( m , k ) then t - Map . get ( m , k ) else 0 
def old := last ( seen , beat ) 
def now := time ( beat ) 
def gap := since ( old , beat , now ) 
def late := filter ( beat , gap > 30 ) 
def upd := Map . add ( old , beat , now ) 
def seen : Events [ Map [ Int , Int ] ] := merge ( upd , Map . empty [ Int , Int ] ) 
def ticks : Events [ Int ] := merge ( last ( ticks , beat ) + 1 , 0 ) 
def start := merge ( beat , 0 ) 
def quiet := delay ( const ( 50 , start ) , start ) 
out late 
out ticks 
out quiet 
out Map . size ( seen ) as devices 
";

const SEEN: &[u8] = b"in i: Events[Int]
def m := merge(y, Set.empty[Int])
def yl := last(m, i)
def y: Events[Set[Int]] := Set.add(yl, i)
def s := Set.contains(yl, i)
out s
";

const SEEN_PRINTED: &[u8] = b"in i : Events [ Int ] 
def m := merge ( y , Set . empty [ Int ] ) 
def yl := last ( m , i ) 
def y : Events [ Set [ Int ] ] := Set . add ( yl , i ) 
def s := Set . contains ( yl , i ) 
out s 
";

const COUNTED: &[u8] = b"in e: Events[Int]
def count(x: Events[Int]): Events[Int] := { def c: Events[Int] := merge(last(c, x) + 1, 0) c }
out count(e) as n
";

const COUNTED_PRINTED: &[u8] = b"in e : Events [ Int ] 
def count ( x : Events [ Int ] ) : Events [ Int ] := { 
def c : Events [ Int ] := merge ( last ( c , x ) + 1 , 0 ) 
c } 
out count ( e ) as n 
";

const DIFFERENCES: &[u8] = b"out 7 - (5 - 3) as d\n";

const DIFFERENCES_PRINTED: &[u8] = b"out 7 - ( 5 - 3 ) as d \n";

#[test]
fn specifications_come_back(rt: HostRuntime) {
    let sources: [(&[u8], &[u8]); 4] = [
        (HEARTBEATS, HEARTBEATS_PRINTED),
        (SEEN, SEEN_PRINTED),
        (COUNTED, COUNTED_PRINTED),
        (DIFFERENCES, DIFFERENCES_PRINTED),
    ];
    for (source, text) in sources.iter() {
        assert!(rt; is_printed(rt.alloc(), *source, *text));
        assert!(rt; is_printed(rt.alloc(), *text, *text));
    }
}

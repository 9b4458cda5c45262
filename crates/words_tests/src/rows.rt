/// A program, the answer that is wanted, and the words, with `|` between them. `""` stands for the empty word, and an
/// answer to `run` has the name of the configuration and the order.
pub const ROWS: &str = r#"replay|usage|
replay|usage|""
replay|usage|-
replay|usage|--
replay|usage|stop
replay|usage|Run
replay|usage|RUN
replay|usage|ru
replay|usage|runs
replay|usage|run run
replay|usage|gen
replay|usage|help
replay|usage|--help
replay|usage|-h
replay|usage|--version
replay|usage|-V
replay|usage|version
replay|usage|run help
replay|usage|run -h
replay|usage|run --help
replay|usage|run --version
replay|usage|run -V
replay|usage|gen -h
replay|usage|gen --help
replay|usage|gen help
replay|usage|-- run
replay|usage|- run
replay|usage|"" run
replay|usage|run ""
replay|usage|run -
replay|usage|run --
replay|usage|--conf a run
replay|usage|--conf=a run
replay|run [] []|run
replay|run [a] []|run --conf a
replay|run [a] []|run --conf=a
replay|run [openssl.cnf] []|run --conf openssl.cnf
replay|run [openssl.cnf] []|run --conf=openssl.cnf
replay|run [dir/a.cnf] []|run --conf dir/a.cnf
replay|run [/etc/a] []|run --conf /etc/a
replay|usage|run --conf
replay|usage|run --conf=
replay|usage|run --conf ""
replay|usage|run --conf -
replay|usage|run --conf --
replay|usage|run --conf -x
replay|usage|run --conf --order
replay|usage|run --conf --conf
replay|run [-] []|run --conf=-
replay|run [--] []|run --conf=--
replay|run [-x] []|run --conf=-x
replay|run [--order] []|run --conf=--order
replay|run [=] []|run --conf==
replay|run [a=b] []|run --conf=a=b
replay|run [a=b] []|run --conf a=b
replay|usage|run --conf a --conf b
replay|usage|run --conf=a --conf=a
replay|usage|run --conf a --conf=a
replay|usage|run --conf=a --conf
replay|usage|run --con a
replay|usage|run --c a
replay|usage|run --confi a
replay|usage|run --CONF a
replay|usage|run --Conf=a
replay|usage|run -conf a
replay|usage|run -c a
replay|usage|run conf a
replay|usage|run a
replay|usage|run --conf a b
replay|usage|run a --conf b
replay|run [run] []|run --conf run
replay|run [gen] []|run --conf gen
replay|run [é] []|run --conf é
replay|run [a,b] []|run --conf=a,b
replay|run [1] []|run --conf 1
replay|usage|run --=a
replay|usage|run ---conf a
replay|usage|run --conf:a
replay|run [] [1]|run --order 1
replay|run [] [1]|run --order=1
replay|run [] [16]|run --order 16
replay|run [] [1,2,1,2]|run --order 1,2,1,2
replay|run [] [1,2,1,2]|run --order=1,2,1,2
replay|run [] [16,15,14,13,12,11,10,9,8,7,6,5,4,3,2,1]|run --order 16,15,14,13,12,11,10,9,8,7,6,5,4,3,2,1
replay|run [] [1,1,1,1]|run --order 1,1,1,1
replay|usage|run --order 0
replay|usage|run --order=0
replay|usage|run --order 17
replay|usage|run --order 1,17
replay|usage|run --order 17,1
replay|usage|run --order 1,0
replay|usage|run --order 01
replay|usage|run --order 1,02
replay|usage|run --order 001
replay|usage|run --order +1
replay|usage|run --order 1,+2
replay|usage|run --order=-1
replay|usage|run --order 1,-2
replay|usage|run --order -1
replay|usage|run --order
replay|usage|run --order=
replay|usage|run --order ""
replay|usage|run --order ,
replay|usage|run --order 1,
replay|usage|run --order ,1
replay|usage|run --order 1,,2
replay|usage|run --order 1;2
replay|usage|run --order 1,2 3
replay|usage|run --order 1, 2
replay|usage|run --order a
replay|usage|run --order 1,a
replay|usage|run --order 1a
replay|usage|run --order 0x1
replay|usage|run --order 1.0
replay|usage|run --order 1e0
replay|usage|run --order １
replay|usage|run --order 100
replay|usage|run --order 18446744073709551617
replay|usage|run --order 1 --order 2
replay|usage|run --order=1 --order=1
replay|usage|run --orde 1
replay|usage|run --orders 1
replay|usage|run -order 1
replay|usage|run -o 1
replay|usage|run --order 1 2
replay|run [a] [1]|run --order 1 --conf a
replay|run [a] [1]|run --conf a --order 1
replay|run [a] [1]|run --conf=a --order=1
replay|run [a] [2,1]|run --order=2,1 --conf a
replay|usage|run --order --conf a
replay|usage|run --conf --order 1
replay|usage|run --conf a --order
replay|usage|run --order 1 --conf
replay|usage|run --order 1 --conf a --order 2
replay|usage|run --hits
replay|usage|run --conf a --hits
replay|usage|run --hits --order 1
replay|usage|run --hits=
replay|usage|run --hits=yes
replay|usage|run --hit
batch|run [] []|run
batch|run [a] []|run --conf a
batch|run [a] []|run --conf=a
batch|usage|run --conf
batch|usage|run --order 1
batch|usage|run --order=1
batch|usage|run --conf a --order 1
batch|usage|run --order 1 --conf a
batch|usage|run --hits
batch|gen 5 7 1|gen 5 7
batch|gen 5 7 8|gen 5 7 --callers 8
batch|usage|gen --order 1 5 7
batch|usage|help
replay|gen 1 0 1|gen 1 0
replay|gen 5 7 1|gen 5 7
replay|gen 65536 18446744073709551615 1|gen 65536 18446744073709551615
replay|usage|gen 65537 7
replay|usage|gen 0 7
replay|usage|gen 1 18446744073709551616
replay|usage|gen 1 99999999999999999999999
replay|usage|gen 100000 1
replay|usage|gen 5
replay|usage|gen 5 7 9
replay|usage|gen a 7
replay|usage|gen 5 a
replay|usage|gen 05 7
replay|usage|gen 5 07
replay|usage|gen 5 00
replay|usage|gen +5 7
replay|usage|gen 5 +7
replay|usage|gen -5 7
replay|usage|gen 5 -7
replay|usage|gen 5, 7
replay|usage|gen 5,7
replay|usage|gen 5 7,
replay|usage|gen 0x5 7
replay|usage|gen 5 7.0
replay|usage|gen "" 7
replay|usage|gen 5 ""
replay|usage|gen 5 -
replay|usage|gen - 7
replay|usage|gen 5 7 --
replay|usage|gen -- 5 7
replay|usage|gen ５ 7
replay|gen 5 7 1|gen 5 7 --callers 1
replay|gen 5 7 16|gen 5 7 --callers 16
replay|gen 5 7 16|gen 5 7 --callers=16
replay|usage|gen 5 7 --callers 17
replay|usage|gen 5 7 --callers 0
replay|usage|gen 5 7 --callers 01
replay|usage|gen 5 7 --callers +1
replay|usage|gen 5 7 --callers -1
replay|usage|gen 5 7 --callers=-1
replay|usage|gen 5 7 --callers
replay|usage|gen 5 7 --callers=
replay|usage|gen 5 7 --callers a
replay|usage|gen 5 7 --callers 1,2
replay|usage|gen 5 7 --callers 1 --callers 1
replay|gen 5 7 2|gen --callers 2 5 7
replay|gen 5 7 2|gen 5 --callers 2 7
replay|gen 5 7 2|gen --callers=2 5 7
replay|gen 5 7 2|gen 5 --callers=2 7
replay|usage|gen --callers 5 7
replay|usage|gen 5 --callers 7
replay|usage|gen --callers 2 5
replay|usage|gen 5 7 --caller 2
replay|usage|gen 5 7 --call 2
replay|usage|gen 5 7 -k 2
replay|usage|gen 5 7 --conf a
replay|usage|gen 5 7 --order 1
replay|usage|gen 5 7 --hits
replay|usage|gen 5 7 gen
replay|usage|gen run 7
replay|usage|gen 5 7 --callers 2 3
"#;

//! Pictures that `qmeta layout IMAGE svg` prints.

/// The picture of an image of at most 64 clusters of 512 bytes, with these squares: a path for each colour,
/// in the first row. The rest of the text is the same for all such images.
#[macro_export]
macro_rules! picture {
    ($squares:literal) => {
        concat!(
            "\
<svg xmlns='http://www.w3.org/2000/svg' width='704' height='784' viewBox='0 0 704 784'>
<title>Host clusters of a qcow2 image</title>
<style>
text{font:14px sans-serif}
.s0{fill:#eee}.s1{fill:#cfe1f2}.s2{fill:#b5d4e9}.s3{fill:#93c3df}.s4{fill:#6daed5}
.s5{fill:#4b97c9}.s6{fill:#2f7ebc}.s7{fill:#1864aa}.s8{fill:#0a4a90}
.s9{fill:#009e73}.s10{fill:#000}.s11{fill:#cc79a7}.s12{fill:#d55e00}
</style>
<rect width='704' height='784' fill='#fff'/>
<g transform='translate(32 32) scale(10)' shape-rendering='crispEdges'>
",
            $squares,
            "\
</g>
<g transform='translate(32 692)'>
<path class='s0' d='M0 0h14v14h-14z'/><text x='20' y='12'>free</text>
<path class='s9' d='M80 0h14v14h-14z'/><text x='100' y='12'>compressed data</text>
<path class='s10' d='M230 0h14v14h-14z'/><text x='250' y='12'>header, L1 and L2 tables</text>
<path class='s11' d='M430 0h14v14h-14z'/><text x='450' y='12'>refcounts</text>
<path class='s12' d='M540 0h14v14h-14z'/><text x='560' y='12'>leaked</text>
<path class='s1' d='M0 24h14v14h-14z'/><path class='s2' d='M14 24h14v14h-14z'/>
<path class='s3' d='M28 24h14v14h-14z'/><path class='s4' d='M42 24h14v14h-14z'/>
<path class='s5' d='M56 24h14v14h-14z'/><path class='s6' d='M70 24h14v14h-14z'/>
<path class='s7' d='M84 24h14v14h-14z'/><path class='s8' d='M98 24h14v14h-14z'/>
<text x='120' y='36'>data, from the start of the guest's disk to its end</text>
<text y='60'>each square has the colour of its most severe content; rows run from left to right</text>
<text y='84'>clusters in a square: 1; bytes in a cluster: 512</text>
</g>
</svg>
"
        )
    };
}

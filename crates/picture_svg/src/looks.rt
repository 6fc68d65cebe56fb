//! The picture's colours and patterns, on light and on dark, its signs, and its legend.
ghost use Rattle.std.specs.Prelude.{◌≡◌};
ghost use Rattle.picture_svg.specs.Looks.{dark_style, ends_legend, ground_style, mark_style, signs_legend, signs_text};
ghost use Rattle.picture_svg.specs.Looks.{states_legend};

/// The style of the ground, the letters and the lines.
#[tactic(auto, unfolding(crate::specs::Looks::ground_style))]
pub(crate) fn ground_style() -> &'static str
    ensures { result.now ≡ ground_style }
{
    "<style>
.card{fill:#fff;stroke:#d4d9de;stroke-width:100}text{font-family:DejaVu Sans,Verdana,sans-serif}
.head{fill:#1b2127;font-weight:600;font-size:1700px}.said{fill:#4c565f;font-size:1200px}
.alarm{fill:#b3261e;font-weight:600;font-size:1200px}.name{fill:#1b2127;font-weight:600;font-size:1200px}
.small{fill:#5d6770;font-size:1000px}.tick{fill:#5d6770;font-size:1000px;text-anchor:middle}
.grid{stroke:#e3e7ea;stroke-width:100}.axis{stroke:#7d8790;stroke-width:100}.void{fill:#eef0f2}
"
}

/// The style of the marks.
#[tactic(auto, unfolding(crate::specs::Looks::mark_style))]
pub(crate) fn mark_style() -> &'static str
    ensures { result.now ≡ mark_style }
{
    ".runs{fill:#a9cdea}.silent{fill:url(#hatch);stroke:#7d8790;stroke-width:80}.off{fill:url(#dots)}
.restored{fill:url(#bars)}.judged{fill:#d55e00}.count{fill:#7a4fa3;fill-opacity:.6}
.left{fill:#35b392;fill-opacity:.6}.vote{fill:#24638f;fill-opacity:.6}
.cross{fill:none;stroke:#b3261e;stroke-width:240;stroke-linecap:round}
.diamond{fill:#00694d;stroke:#fff;stroke-width:80}.disturbed{fill:none;stroke:#b3261e;stroke-width:200}
.stop{stroke:#b3261e;stroke-width:200}.ink{stroke:#7d8790;stroke-width:160}.leaf{fill:#35b392}
.rib{stroke:#fff;stroke-width:120;stroke-opacity:.75}.dot{fill:#7d8790}
.limit{fill:url(#dashes)}.dash{fill:#1b2127}
.ring{fill:none;stroke:#5d6770;stroke-width:220}
"
}

/// What is other on a dark page.
#[tactic(auto, unfolding(crate::specs::Looks::dark_style))]
pub(crate) fn dark_style() -> &'static str
    ensures { result.now ≡ dark_style }
{
    "@media (prefers-color-scheme:dark){.card{fill:#161b20;stroke:#39424b}.head,.name{fill:#eef2f5}
.said{fill:#b9c3cb}.small,.tick{fill:#a3adb6}.alarm{fill:#ff7a6e}.grid{stroke:#2a323a}.void{fill:#20272d}
.runs{fill:#37668c}.judged{fill:#ff8a3d}.count{fill:#c39ae8}.vote{fill:#7cc0f0}.left,.leaf{fill:#21876b}
.cross,.disturbed,.stop{stroke:#ff7a6e}.diamond{fill:#4fe0b4;stroke:#161b20}.rib{stroke:#161b20}
.ring{stroke:#a3adb6}.dash{fill:#eef2f5}}
</style>
"
}

/// The patterns and the signs.
#[tactic(auto, unfolding(crate::specs::Looks::signs_text))]
pub(crate) fn signs_text() -> &'static str
    ensures { result.now ≡ signs_text }
{
    "<defs>
<pattern id='hatch' width='500' height='500' patternUnits='userSpaceOnUse' patternTransform='rotate(45)'>
<line class='ink' y2='500'/>
</pattern>
<pattern id='bars' width='600' height='3000' patternUnits='userSpaceOnUse'>
<rect class='leaf' width='600' height='3000'/>
<line class='rib' x1='300' x2='300' y2='3000'/>
</pattern>
<pattern id='dots' width='450' height='200' patternUnits='userSpaceOnUse'>
<rect class='dot' width='150' height='200'/>
</pattern>
<pattern id='dashes' width='600' height='600' patternUnits='userSpaceOnUse'>
<rect class='dash' width='350' height='600'/>
</pattern>
<path id='removed' class='cross' d='M-450,-450l900,900m0,-900l-900,900'/>
<path id='joined' class='diamond' d='M0,-650l650,650l-650,650l-650,-650Z'/>
<circle id='dropped' class='ring' r='550'/>
</defs>
"
}

/// The legend of a channel's states.
#[tactic(auto, unfolding(crate::specs::Looks::states_legend))]
pub(crate) fn states_legend() -> &'static str
    ensures { result.now ≡ states_legend }
{
    "<rect class='runs' x='2000' y='0' width='2200' height='1200'/>
<text class='said' x='4900' y='1000'>runs</text>
<rect class='silent' x='9600' y='0' width='2200' height='1200'/>
<text class='said' x='12500' y='1000'>active, has no line</text>
<rect class='off' x='26800' y='500' width='2200' height='200'/>
<text class='said' x='29700' y='1000'>switched off</text>
<rect class='restored' x='40000' y='0' width='2200' height='1200'/>
<text class='said' x='42900' y='1000'>being restored</text>
<rect class='judged' x='55000' y='400' width='2200' height='400'/>
<text class='said' x='57900' y='1000'>judged errant</text>
"
}

/// The legend of the signs and of the bars.
#[tactic(auto, unfolding(crate::specs::Looks::signs_legend))]
pub(crate) fn signs_legend() -> &'static str
    ensures { result.now ≡ signs_legend }
{
    "<use href='#removed' x='70400' y='600'/>
<text class='said' x='72200' y='1000'>removed</text>
<use href='#joined' x='81100' y='600'/>
<text class='said' x='82900' y='1000'>declared joined</text>
<rect class='limit' x='97200' y='550' width='2200' height='100'/>
<text class='said' x='100100' y='1000'>threshold, final frame</text>
<rect class='count' x='2000' y='2200' width='2200' height='1200'/>
<text class='said' x='4900' y='3200'>error count</text>
<rect class='left' x='14400' y='2200' width='2200' height='1200'/>
<text class='said' x='17300' y='3200'>blocks left to send</text>
<rect class='vote' x='31600' y='2200' width='2200' height='1200'/>
<text class='said' x='34500' y='3200'>word of an output</text>
"
}

/// The legend of what a report ends with.
#[tactic(auto, unfolding(crate::specs::Looks::ends_legend))]
pub(crate) fn ends_legend() -> &'static str
    ensures { result.now ≡ ends_legend }
{
    "<rect class='disturbed' x='48600' y='2300' width='1200' height='1000'/>
<text class='said' x='50900' y='3200'>disturbed at the stop</text>
<rect class='void' x='67200' y='2200' width='2200' height='1200'/>
<text class='said' x='70100' y='3200'>not in the report</text>
<use href='#dropped' x='83600' y='2800'/>
<text class='said' x='85400' y='3200'>dropped from the transfer</text>
"
}

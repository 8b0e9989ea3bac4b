//! How the page looks.

/// The page's style: light or dark as the reader's system is, and for windows from 360 pixels on.
pub(crate) const STYLE: &str = "\
:root{color-scheme:light dark;--back:#fff;--text:#1b1f24;--soft:#586069;--line:#d4d9df;--box:#f3f5f7;--i:#3b86c8;--u:#d99a00;--d:#97123f}
@media (prefers-color-scheme:dark){:root{--back:#14171b;--text:#e9ecef;--soft:#aab2bb;--line:#3b434c;--box:#1f252b;--i:#5b9fe0;--u:#ffd166;--d:#ff5c8a}}
*{box-sizing:border-box}
body{margin:0;background:var(--back);color:var(--text);font:16px/1.5 system-ui,sans-serif}
header,main{max-width:76rem;margin:0 auto;padding:0 1rem}
main{padding-bottom:3rem}
h1{margin:1.2rem 0 .4rem;font-size:1.6rem;line-height:1.2}
h2{margin:2.2rem 0 .6rem;font-size:1.2rem;line-height:1.3}
p{margin:.3rem 0}
code{font:14px/1.5 ui-monospace,monospace;overflow-wrap:anywhere;unicode-bidi:isolate}
bdi{overflow-wrap:anywhere}
.time,td,dd{font-variant-numeric:tabular-nums}
.totals{display:grid;grid-template-columns:repeat(auto-fit,minmax(9.5rem,1fr));gap:.6rem;margin:1rem 0}
.totals div{background:var(--box);border-radius:6px;padding:.6rem .8rem}
dt{color:var(--soft);font-size:.875rem}
dd{margin:0;font-size:1.3rem;font-weight:600;overflow-wrap:anywhere}
dd.time{font-size:1rem;line-height:1.3}
.key{display:inline-block;width:.75em;height:.75em;margin-right:.35em;border-radius:2px}
.key.i{background:var(--i)}
.key.u{background:var(--u)}
.key.d{background:var(--d)}
.legend,.caption{color:var(--soft);font-size:.875rem}
.legend>span{margin-right:.8rem;white-space:nowrap}
#part:not([hidden]){display:flex;flex-wrap:wrap;gap:.5rem 1.4rem;align-items:center;margin:.6rem 0;padding:.7rem .8rem;background:var(--box);border-radius:6px;font-size:.9rem}
#part select{max-width:16rem}
#part label{display:inline-flex;gap:.4rem;align-items:center;max-width:100%}
#part .kinds{display:inline-flex;flex-wrap:wrap;gap:.2rem 1rem}
#part output{min-width:10.5rem;font-variant-numeric:tabular-nums}
#part input[type=range]{min-width:4rem;flex:1}
select,button{font:inherit;color:var(--text);background:var(--back);border:1px solid var(--soft);border-radius:4px;padding:.1rem .5rem}
button{cursor:pointer}
button:hover{background:var(--line)}
.chart{display:grid;grid-template-columns:auto minmax(0,1fr);gap:.2rem .5rem;margin:.6rem 0}
.rows-axis{display:flex;flex-direction:column;justify-content:space-between;text-align:right;color:var(--soft);font-size:.8rem;line-height:1;height:240px;padding-top:2px;font-variant-numeric:tabular-nums}
.plot{width:100%;height:240px;border-bottom:1px solid var(--soft);background:linear-gradient(var(--line),var(--line)) 0 8px/100% 1px no-repeat,linear-gradient(var(--line),var(--line)) 0 124px/100% 1px no-repeat}
.plot .i{fill:var(--i)}
.plot .u{fill:var(--u)}
.plot .d{fill:var(--d);stroke:var(--d);stroke-width:1.5px;vector-effect:non-scaling-stroke}
.plot .h{fill:transparent}
.plot g:hover .h{fill:var(--line)}
.time-axis{grid-column:2;display:flex;justify-content:space-between;gap:.5rem;color:var(--soft);font-size:.8rem;line-height:1.3;font-variant-numeric:tabular-nums}
.time-axis span{width:5.2rem;text-align:center}
.time-axis span:first-child{text-align:left}
.time-axis span:last-child{text-align:right}
.wide{overflow-x:auto}
table{border-collapse:collapse;width:100%;font-size:.95rem}
th,td{padding:.3rem .5rem;border-bottom:1px solid var(--line);text-align:right;vertical-align:top}
th:first-child{text-align:left;overflow-wrap:anywhere;padding-left:0}
thead th{color:var(--soft);font-weight:600;font-size:.875rem}
tbody th{font-weight:400;min-width:7rem}
.units{list-style:none;margin:0;padding:0}
.units li{padding:.7rem 0;border-bottom:1px solid var(--line)}
.facts span,.rows>span{margin-right:.9rem}
.facts span{color:var(--soft)}
.facts .time{margin-right:.6rem}
.rows>span{white-space:nowrap}
.why{font-weight:600}
.command{display:flex;gap:.6rem;align-items:flex-start;margin:.35rem 0}
.command code{background:var(--box);border-radius:4px;padding:.25rem .5rem;min-width:0}
.command button{font-size:.85rem;flex:none}
@media (max-width:40rem){.time-axis span:nth-child(even){display:none}.totals{grid-template-columns:1fr 1fr}tr{display:grid;grid-template-columns:repeat(3,minmax(0,1fr))}th:first-child{grid-column:1/-1;border-bottom:0;padding-bottom:0}th,td{padding:.3rem 0}td{overflow-wrap:anywhere;font-size:.85rem}}
";
